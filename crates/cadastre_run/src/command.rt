//! What the arguments ask for.

use cad_serve::read_count;

/// Where a program listens, and for how many connections.
#[derive(Clone, Copy, Debug, PartialEq, Eq)]
pub struct Service<'a> {
    /// The text of the address.
    pub address: &'a str,
    /// How many connections are taken.
    pub count: u32,
}

/// What the program is to do.
#[derive(Clone, Copy, Debug, PartialEq, Eq)]
pub enum Command<'a> {
    /// Serve one connection from standard input to standard output over the sample register.
    Sample,
    /// Serve one connection over the register of the file at this path.
    Ask(&'a str),
    /// Listen for connections, and serve them over the register of the file at this path.
    Serve {
        /// The path of the file.
        file: &'a str,
        /// Where, and for how many connections.
        service: Service<'a>,
    },
    /// Enter the commands of standard input into the register of the file at this path.
    Office(&'a str),
}

impl<'a> Command<'a> {
    ghost use Rattle.std.specs.Prelude.{◌≡◌, map, string_bytes};
    ghost use Rattle.cad_serve.specs.Arguments.{count_of};
    ghost use Rattle.cadastre_run.specs.Commands.{command_line_read, service_of, IsCommandOf};

    /// The command of a command line, which begins with the program's name.
    pub fn of_words(words: &'a [String]) -> Option<Command<'a>>
        ensures { IsCommandOf (map (λ word. string_bytes word) words.now) result }
    {
        match words {
            [_, name] if name.as_str() == "sample" => Some(Command::Sample),
            [_, name, file] if name.as_str() == "ask" => Some(Command::Ask(file.as_str())),
            [_, name, file] if name.as_str() == "office" => Some(Command::Office(file.as_str())),
            [_, name, file, address, count] if name.as_str() == "serve" => Command::of_service(
                file.as_str(),
                address.as_str(),
                count.as_str(),
            ),
            _ => None,
        }
    }

    /// The command to serve a file at an address, if the count is valid.
    fn of_service(file: &'a str, address: &'a str, count: &str) -> Option<Command<'a>>
        ensures { command_line_read result ≡ service_of file.now address.now (count_of count.now) }
    {
        let count = read_count(count)?;
        Some(Command::Serve {
            file,
            service: Service { address, count },
        })
    }
}
