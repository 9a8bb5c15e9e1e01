// The tokens that a call wakes: never more than a line has places, so they stand in a fixed array.
ghost use Rattle.std.specs.Prelude.{◌≡◌, ◌≤◌, length};

use arena::Arena;

// The first `count` of the array, in order. An array of its own: an answer is copied by value, as arrayvec's vector is not, and making that
// vector took more than twice as long.
#[derive(Clone, Copy)]
pub struct Wakes {
    tokens: [u32; Arena::SLOTS],
    count: usize,
    ghost sized: { length tokens ≡ 32 },
    ghost within: { count ≤ 32 },
}

impl Wakes {
    ghost use Rattle.std.specs.Prelude.{◌≡◌, ◌<◌, [], ◌∷◌, ◌++◌, length};
    ghost use Rattle.wakes.specs.Tokens.{tokens_of};

    #[tactic(auto, unfolding(crate::specs::Tokens::tokens_of))]
    pub fn none() -> Self
        ensures { tokens_of result ≡ [] }
    {
        Wakes {
            tokens: [0; Arena::SLOTS],
            count: 0,
        }
    }

    pub fn one(token: u32) -> Self
        ensures { tokens_of result ≡ token ∷ [] }
    {
        let mut wakes = Wakes::none();
        wakes.push(token);
        wakes
    }

    #[tactic(auto, unfolding(crate::specs::Tokens::tokens_of))]
    pub fn as_slice(&self) -> &[u32]
        ensures { result.now ≡ tokens_of self.now }
    {
        &self.tokens[..self.count]
    }

    #[tactic(auto, unfolding(crate::specs::Tokens::tokens_of))]
    pub(crate) fn push(&mut self, token: u32)
        requires { length (tokens_of self.old) < 32 }
        ensures { tokens_of self.new ≡ tokens_of self.old ++ (token ∷ []) }
    {
        self.tokens[self.count] = token;
        self.count += 1;
    }
}
