//! A list of replies.
ghost use Rattle.std.specs.Prelude.{◌≡◌};

use crate::reply::Reply;
use std::marker::Model;

/// A list of replies.
#[derive(Drop)]
pub struct Replies {
    items: Vec<Reply>,
}

impl Model for Replies {
    ghost use Rattle.std.specs.Prelude.{List};
    ghost use Rattle.fmi_states.specs.declared.reply.Reply.{Reply};

    ghost Value = { List Reply };

    ghost view = { λ r. r.items.items };
}

impl Replies {
    /// The replies of a vector.
    pub fn of(items: Vec<Reply>) -> Replies
        ensures { result ≡ items.items }
    {
        Replies { items }
    }

    /// The replies as a slice.
    pub fn as_slice(&self) -> &[Reply]
        ensures { result.now ≡ self.now }
    {
        &self.items
    }

    /// The replies as a vector.
    pub fn into_vec(self) -> Vec<Reply>
        ensures { result.items ≡ self }
    {
        self.items
    }
}
