//! The answer to the line `status`: what the register holds and what the service did, as one line of JSON.

ghost use Rattle.std.specs.Prelude.{◌≡◌, IfOk};
ghost use Rattle.serde_json.specs.View.{view};
ghost use Rattle.cad_office_socket.specs.Statuses.{chain_or_null, clients_data, commands_data, number_or_null, replies_data, status_data, status_text, versions_data, versions_or_null, work_data};

use crate::figures::{ClientCounts, CommandCounts, Figures, ReplyCounts, WorkCounts};
use cad_commands::Chain;
use cad_stream::{Summary, VersionCounts};
use cad_versions::Class;
use hex::encode;
use serde_json::{Map, Value as Json, json};
use std::alloc::{AllocError, Global};

/// What the register holds, and what the service did since its start.
#[derive(Clone, Copy, Debug, PartialEq, Eq)]
pub struct Status {
    /// What the register holds.
    pub summary: Summary,
    /// What the service did.
    pub figures: Figures,
}

fn number_json(number: Option<u64>) -> Json
    ensures { view result ≡ number_or_null number }
{
    match number {
        None => Json::Null,
        Some(number) => Json::from(number),
    }
}

fn chain_json(alloc: Global, chain: &Option<Chain>) -> Result<Json, AllocError>
    ensures { IfOk result (λ json. view json ≡ chain_or_null chain.now) }
{
    match chain {
        None => Ok(Json::Null),
        Some(chain) => Ok(Json::String(encode(alloc, chain.digest().as_slice())?)),
    }
}

fn counts_json(alloc: Global, counts: &VersionCounts) -> Result<Json, AllocError>
    ensures { IfOk result (λ json. view json ≡ versions_data counts.now) }
{
    let mut members = Map::new(alloc);
    for (class, count) in Class::ALL.iter().zip(&counts.of_each) {
        serde_json::put(&mut members, alloc, class.name(), Json::from(*count))?;
    }
    Ok(Json::Object(members))
}

fn versions_json(alloc: Global, counts: &Option<VersionCounts>) -> Result<Json, AllocError>
    ensures { IfOk result (λ json. view json ≡ versions_or_null counts.now) }
{
    match counts {
        None => Ok(Json::Null),
        Some(counts) => counts_json(alloc, counts),
    }
}

fn clients_json(alloc: Global, clients: &ClientCounts) -> Result<Json, AllocError>
    ensures { IfOk result (λ json. view json ≡ clients_data clients.now) }
{
    json!(in alloc; {"all": clients.all, "now": clients.connected})
}

fn commands_json(alloc: Global, commands: &CommandCounts) -> Result<Json, AllocError>
    ensures { IfOk result (λ json. view json ≡ commands_data commands.now) }
{
    json!(in alloc; {"accepted": commands.accepted, "refused": commands.refused})
}

fn replies_json(alloc: Global, replies: &ReplyCounts) -> Result<Json, AllocError>
    ensures { IfOk result (λ json. view json ≡ replies_data replies.now) }
{
    json!(in alloc; {"200": replies.ok, "400": replies.bad_request, "404": replies.not_found,
        "405": replies.method_not_allowed, "500": replies.internal_error, "503": replies.unavailable})
}

fn work_json(alloc: Global, work: &WorkCounts) -> Result<Json, AllocError>
    ensures { IfOk result (λ json. view json ≡ work_data work.now) }
{
    json!(in alloc; {"in_turn": work.in_turn, "longest_micros": work.longest_micros, "pieces": work.pieces, "waiting": work.waiting})
}

fn status_json(alloc: Global, status: &Status) -> Result<Json, AllocError>
    ensures { IfOk result (λ json. view json ≡ status_data status.now) }
{
    let Status { summary, figures } = status;
    let chain = chain_json(alloc, &summary.chain)?;
    let clients = clients_json(alloc, &figures.clients)?;
    let commands = commands_json(alloc, &figures.commands)?;
    let highest = number_json(summary.highest_object);
    let oldest = number_json(summary.oldest);
    let replies = replies_json(alloc, &figures.replies)?;
    let versions = versions_json(alloc, &summary.versions)?;
    let work = work_json(alloc, &figures.work)?;
    json!(in alloc; {"chain": chain, "clients": clients, "commands": commands, "highest_object": highest, "oldest": oldest,
        "replies": replies, "reply_bytes": figures.reply_bytes, "resident_bytes": figures.resident_bytes, "revision": summary.revision,
        "seconds": figures.seconds, "versions": versions, "work": work})
}

/// The line of the status, with its end. An error means out of memory.
pub fn status_bytes(alloc: Global, status: &Status) -> Result<Vec<u8>, AllocError>
    ensures { IfOk result (λ bytes. bytes.items ≡ status_text status.now) }
{
    let mut text = status_json(alloc, status)?.to_string(alloc)?;
    text.push('\n')?;
    Ok(text.into_bytes())
}
