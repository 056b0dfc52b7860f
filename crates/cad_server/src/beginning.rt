//! The beginning of a reply.

ghost use Rattle.std.specs.Prelude.{◌≡◌, IfOk};
ghost use Rattle.cad_head.specs.Replies.{reply_text};
ghost use Rattle.cad_stream.specs.Beginning.{told};
ghost use Rattle.cad_server.specs.Contents.{content_located};
ghost use Rattle.cad_server.specs.Works.{reply_owed};

use crate::located::Located;
use crate::page_work::PageWork;
use cad_head::reply_bytes;
use cad_stream::Part;
use std::alloc::{AllocError, Global};

/// The reply, or the work that is left for it if it is a page. An error means out of memory.
pub(crate) fn part_for(
    alloc: Global,
    what: Located,
    ends: bool,
) -> Result<Part<PageWork>, AllocError>
    ensures { IfOk result (λ part. told reply_owed part ≡ reply_text (content_located what).0 ends (content_located what).1) }
{
    match what {
        Located::Response(response) => {
            let bytes = reply_bytes(alloc, response.status, ends, response.body.as_str())?;
            Ok(Part::Made(bytes))
        }
        Located::Page { ask, snapshot } => {
            let work = PageWork::new(alloc, ask, snapshot, ends)?;
            Ok(Part::Left(work))
        }
    }
}
