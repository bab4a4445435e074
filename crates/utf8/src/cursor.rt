// The cursor record: three places of a word in bytes, by value (snowball_env.rs, `SnowballEnv`).
ghost use Rattle.std.specs.Prelude.{◌≡◌};
ghost use Rattle.utf8.specs.Steps.{stands, move_to};
ghost use Rattle.utf8.specs.Behind.{deleted};

#[derive(Clone, Copy)]
pub struct Cursor {
    pub cursor: usize,
    pub limit: usize,
    pub limit_backward: usize,
}

impl Cursor {
    // Whether the record lies within the word: no step reads where it does not.
    #[tactic(auto, unfolding(crate::specs::Steps::stands))]
    pub fn stands_in(self, w: &[u8]) -> bool
        ensures { result ≡ stands w.now self }
    {
        self.limit_backward <= self.cursor && self.cursor <= self.limit && self.limit <= w.len()
    }

    // The record with its cursor elsewhere.
    #[tactic(auto, unfolding(crate::specs::Steps::move_to))]
    pub fn moved_to(self, c: usize) -> Cursor
        ensures { result ≡ move_to self c }
    {
        Cursor { cursor: c, ..self }
    }

    // The record after all from the cursor on is deleted: the limit comes down to the cursor.
    #[tactic(auto, unfolding(crate::specs::Behind::deleted))]
    pub fn deleted(self) -> Cursor
        ensures { result ≡ deleted self }
    {
        Cursor {
            limit: self.cursor,
            ..self
        }
    }
}
