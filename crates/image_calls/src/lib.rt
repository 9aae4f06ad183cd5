// Save, on a sound session under a good table; and restore, on any session under any table, by what the checks that all calls share
// say of it.
#![tactic(auto)]

ghost use Rattle.std.specs.Prelude.{◌≡◌};
ghost use Rattle.model.specs.Calls.{Call};
ghost use Rattle.model.specs.Refusals.{refusal_in};
ghost use Rattle.session.specs.Stored.{Ready};
ghost use Rattle.calls.specs.StoredCalls.{call_stored};
ghost use Rattle.image_calls.specs.Restores.{restored_stored, brought};
ghost use Rattle.image_calls.specs.StoredSaves.{saved, save_stored};

use calls::Reply;
use checks::Checked;
use model::Refusal;
use session::Session;

// Brings the session of a whole image to where a session stands: refused by the checks before its own, 5 where the bytes do not end as
// an image does, 6 where no session can be read, or 7 where it is not sound. A refused one leaves what stands there.
fn restored(on: &Checked<'_>, image: &[u8], s: &mut Session) -> Result<(), Refusal>
    ensures brings { brought result s.new ≡ restored_stored (refusal_in on.now.refused) on.now.table.now image.now }
    ensures stays { (refusal_in result ≡ 0 → ⊥) → s.new ≡ s.old }
{
    on.refused?;
    if !image::shaped(image) {
        return Err(Refusal::ImageEnd);
    }
    let Some(session) = image::read(image) else {
        return Err(Refusal::ImageTasks);
    };
    if !soundness::sound(on.table, session) {
        return Err(Refusal::ImageUnsound);
    }
    *s = session;
    Ok(())
}

// Restore: the session read from a whole image. The reply stands first, and the session is brought to it: as a result, it would be
// copied where it is refused, too.
pub fn restore(on: &Checked<'_>, image: &[u8]) -> Reply
    ensures { result ≡ call_stored on.now.table.now on.now.session.now (Call.restore image.now) }
{
    let mut reply = Reply {
        session: *on.session,
        answer: answer::refused(0),
    };
    reply.answer = match restored(on, image, &mut reply.session) {
        Ok(()) => answer::look_at(reply.session),
        Err(refusal) => answer::refused(refusal.number()),
    };
    reply
}

// What a save gives: its refusal, or 0 and the length of the image. A number: the C interface has a byte there.
#[repr(C)]
#[derive(Clone, Copy)]
pub struct SaveReply {
    pub refusal: u8,
    pub length: usize,
}

// A refused save: its number, as the reply has it, and length 0.
pub fn refuse_save(refusal: u8) -> SaveReply
    ensures { result ≡ record { refusal = refusal; length = 0 } }
{
    SaveReply {
        refusal: refusal,
        length: 0,
    }
}

// Save: the image at the start of a buffer that is not shorter. The table is there for the contract, whose one clause is what
// `checks::passed` asks: a `Checked` made by the caller is no shorter.
pub fn save(table: &[u8], s: Session, out: &mut [u8]) -> SaveReply
    requires { Ready table.now s }
    ensures { saved result out.new ≡ save_stored table.now s out.old }
{
    if out.len() < image::length(s) {
        return refuse_save(Refusal::BufferShort.number());
    }
    SaveReply {
        refusal: 0,
        length: image::write(s, out),
    }
}
