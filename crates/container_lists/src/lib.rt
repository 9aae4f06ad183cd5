// Lists of steps and Backs, given as bytes and played from an empty container.
#![tactic(auto)]

ghost use Rattle.std.specs.Prelude.{◌*◌, ◌≡◌};
ghost use Rattle.model.specs.Histories.{after};
ghost use Rattle.container.specs.Stored.{by_container};
ghost use Rattle.container.specs.Promised.{Promised, KeepsPromise};
ghost use Rattle.container_lists.specs.CallBytes.{call_of, calls_in, EveryList};

use container::Container;

// Carries out the call of one record: 1 a step, 2 a recorded step, 3 Back. An unknown kind is no call. A refused call leaves the
// container.
fn called(c: &mut Container, kind: u8, operations: &[u8])
    ensures { c.new ≡ after by_container c.old (call_of kind operations.now) }
{
    let reply = match kind {
        1 => c.step(0, operations),
        2 => c.step(1, operations),
        3 => c.back(),
        _ => return,
    };
    if let Ok(next) = reply {
        *c = next;
    }
}

// How many bytes so many operations have.
fn bytes_of(count: u8) -> usize
    ensures { result ≡ 2 * count }
{
    2 * usize::from(count)
}

// The container after a whole list, from an empty one. Its panels are those of the steps carried out and not undone. Every list
// of steps and Backs can be given so. The loop takes a call from what is left: calls have no one length.
pub fn play(calls: &[u8]) -> Container
    ensures promised { Promised (calls_in calls.now) result }
    ensures every { EveryList }
    ensures promise { KeepsPromise }
{
    let mut c = Container::empty();
    let mut left = calls;
    while let [kind, count, rest @ ..] = left {
        let Some((operations, others)) = rest.split_at_checked(bytes_of(*count)) else {
            return c;
        };
        called(&mut c, *kind, operations);
        left = others;
    }
    c
}
