//! The replies that a move prints.

ghost use Rattle.std.specs.Prelude.{◌≡◌, ◌++◌, [], ◌∷◌, OnOk};

use sky_model::Reply;
use sky_val::NoMemory;

/// Adds a reply to those that a move prints.
// A fault of `push` itself isn't one that `?` makes a worker's.
pub fn add_reply(reply: Reply, replies: &mut Vec<Reply>) -> Result<(), NoMemory>
    ensures { OnOk result (replies.new.items ≡ replies.old.items ++ reply ∷ []) }
{
    replies.push(reply)?;
    Ok(())
}
