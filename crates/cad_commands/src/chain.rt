//! A digest of commands in their order.

ghost use Rattle.std.specs.Prelude.{◌≡◌, IfOk};
ghost use Rattle.cad_commands.specs.Chains.{chain_of as chain_of_all, digest_of};

use crate::writing::write_command;
use cad_versions::Command;
use sha2::{Digest, Sha256};
use std::alloc::{AllocError, Global};

/// The SHA-256 digest of commands in their order. Two journals with the same chain have the same commands, unless SHA-256 collides.
#[derive(Clone, Copy, Debug, PartialEq, Eq)]
pub struct Chain {
    digest: [u8; 32],
}

impl Chain {
    ghost use Rattle.std.specs.Prelude.{◌≡◌, IfOk};
    ghost use Rattle.cad_commands.specs.Chains.{chain_then, digest_of, no_chain};

    /// The chain of no commands: 32 zero bytes.
    pub fn start() -> Chain
        ensures { digest_of result ≡ no_chain }
    {
        Chain { digest: [0; 32] }
    }

    /// The chain with a further command: the digest of the chain's 32 bytes and then the command's text. An error means out of memory.
    pub fn then(self, alloc: Global, command: &Command) -> Result<Chain, AllocError>
        ensures { IfOk result (λ chain. digest_of chain ≡ chain_then (digest_of self) command.now) }
    {
        let text = write_command(alloc, command)?;
        let mut hasher = Sha256::new();
        hasher.update(self.digest.as_slice());
        hasher.update(text.as_bytes());
        Ok(Chain {
            digest: hasher.finalize(),
        })
    }

    /// The digest.
    pub fn digest(&self) -> &[u8; 32]
        ensures { result.now ≡ digest_of self.now }
    {
        &self.digest
    }
}

/// The chain of these commands. An error means out of memory.
pub fn chain_of(alloc: Global, commands: &[Command]) -> Result<Chain, AllocError>
    ensures { IfOk result (λ chain. digest_of chain ≡ chain_of_all commands.now) }
{
    let mut chain = Chain::start();
    for command in commands {
        chain = chain.then(alloc, command)?;
    }
    Ok(chain)
}
