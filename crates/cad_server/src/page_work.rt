//! The work for the reply with a page.

ghost use Rattle.cad_server.specs.Stages.{IsStageFor, stage_prop};

use crate::requested_page::RequestedPage;
use crate::stage::{Counted, Stage};
use cad_history::Snapshot;
use cad_page::{Ask, page_full_plan};
use std::alloc::{AllocError, Global};

/// The work that is left for the reply with a page. It holds the features of the page's revision, so no command changes what it owes.
#[derive(Drop)]
pub struct PageWork {
    pub(crate) page: RequestedPage,
    pub(crate) stage: Stage,
    pub ghost stands: { IsStageFor stage page.ask page.snapshot } by { stage_prop stage page.ask page.snapshot },
}

impl PageWork {
    ghost use Rattle.std.specs.Prelude.{◌≡◌, IfOk};
    ghost use Rattle.cad_server.specs.Stages.{reply_with};
    ghost use Rattle.cad_server.specs.Works.{reply_owed};

    /// The work of which nothing is done. An error means out of memory.
    pub(crate) fn new(
        alloc: Global,
        ask: Ask,
        snapshot: Snapshot,
        ends: bool,
    ) -> Result<PageWork, AllocError>
        ensures { IfOk result (λ work. reply_owed work ≡ reply_with ask snapshot ends) }
    {
        let full = page_full_plan(alloc, &ask)?;
        Ok(PageWork {
            page: RequestedPage {
                ask,
                snapshot,
                ends,
            },
            stage: Stage::Counting(Counted {
                full,
                counts: Vec::new(alloc),
            }),
        })
    }
}
