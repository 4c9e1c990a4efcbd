//! The witness that the House is gone.
//!
//! Only `judge_read` makes one.

ghost use Rattle.std.specs.Prelude.{◌≡◌, Err, IfOk, Ok, OnErr};
ghost use Rattle.urb_show.specs.declared.reader.ReadFault.TheVariants as fault;
ghost use Rattle.urb_desk.specs.internal.Sends.{LacksMemoryForPage};

use urb_names::NoMemory;
use urb_show::{Page, ReadFault};

/// The witness that the House is gone. Only a read that says so makes one.
#[derive(Clone, Copy)]
pub(crate) struct HouseGone {
    gone: (),
}

/// What a read shows: a page, or that the House is gone. `NoMemory`: there was no memory for the page.
pub(crate) fn judge_read(came: Result<Page, ReadFault>) -> Result<Result<Page, HouseGone>, NoMemory>
    ensures page { IfOk result (λ read. IfOk read (λ page. came ≡ Ok page)) }
    // It says that the House is gone only if the read said so.
    ensures gone { IfOk result (λ read. OnErr read (came ≡ Err fault.Gone)) }
    // It says that memory was refused only if the read did.
    ensures refused { OnErr result (LacksMemoryForPage came) }
{
    match came {
        Ok(page) => Ok(Ok(page)),
        Err(ReadFault::NoMemory(refused)) => Err(refused),
        Err(ReadFault::Gone) => Ok(Err(HouseGone { gone: () })),
    }
}
