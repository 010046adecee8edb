// What the pieces of a list are for its commas.
ghost use Rattle.std.specs.Prelude.{◌≡◌, ◌<◌, ◌^◌, false, true};
ghost use Rattle.tidy_flags.specs.Signs.{depth_after, is_closing, is_comma, is_opening, is_own_comma, is_token, state_after, stays_early, word_sign};
ghost use Rattle.tidy_flags.specs.Clearing.{ends_blanks, is_plain_sign};

/// What a piece is for lists.
#[derive(Clone, Copy, Debug, PartialEq, Eq)]
pub enum Sign {
    /// `(`, `[` or `{`.
    Opening,
    /// `)`, `]` or `}`.
    Closing,
    /// `,`.
    Comma,
    /// Any other token.
    Token,
    /// A blank without a backslash.
    Blank,
    /// A blank with a backslash.
    Splice,
    /// A comment or a preprocessor line.
    Solid,
}

/// What has come so far of the parts of a list.
#[derive(Clone, Copy, Debug)]
pub struct ListState {
    /// How many brackets are open.
    pub depth: usize,
    /// Whether a token stands behind the last comma, or behind the bracket of the list.
    pub seen: bool,
    /// Whether only blanks stand behind a comma that goes.
    pub gone: bool,
}

impl Sign {
    /// Returns what a token is.
    pub fn of_word(text: &[u8]) -> Sign
        ensures { result ≡ word_sign text.now }
    {
        if is_opening(text) {
            Sign::Opening
        } else if is_closing(text) {
            Sign::Closing
        } else if is_comma(text) {
            Sign::Comma
        } else {
            Sign::Token
        }
    }

    pub fn is_token(self) -> bool
        ensures { result ≡ is_token self }
    {
        match self {
            Sign::Opening => true,
            Sign::Closing => true,
            Sign::Comma => true,
            Sign::Token => true,
            Sign::Blank => false,
            Sign::Splice => false,
            Sign::Solid => false,
        }
    }

    /// Whether no blank behind it goes with a comma before it.
    pub fn ends_blanks(self) -> bool
        ensures { result ≡ ends_blanks self }
    {
        match self {
            Sign::Blank => false,
            Sign::Splice => false,
            _ => true,
        }
    }

    pub fn is_plain(self) -> bool
        ensures { result ≡ is_plain_sign self }
    {
        match self {
            Sign::Blank => true,
            _ => false,
        }
    }

    /// Whether this is a comma of the list itself, with so many brackets open before it.
    pub fn is_own_comma(self, depth: usize) -> bool
        ensures { result ≡ is_own_comma depth self }
    {
        match self {
            Sign::Comma => depth == 0,
            _ => false,
        }
    }

    /// Returns how many brackets are open behind it.
    pub fn depth_after(self, depth: usize) -> usize
        requires { depth < 2 ^ 62 }
        ensures { result ≡ depth_after depth self }
    {
        match self {
            Sign::Opening => depth + 1,
            Sign::Closing => depth.saturating_sub(1),
            _ => depth,
        }
    }
}

impl ListState {
    /// Whether a part stays, as far as the parts before it say.
    pub fn stays_early(self, sign: Sign) -> bool
        ensures { result ≡ stays_early self sign }
    {
        match sign {
            Sign::Blank => !self.gone,
            _ => !sign.is_own_comma(self.depth) || self.seen,
        }
    }

    /// Returns what has come with one part more.
    pub fn after(self, sign: Sign) -> ListState
        requires { self.depth < 2 ^ 62 }
        ensures { result ≡ state_after self sign }
    {
        match sign {
            Sign::Opening => seen_at(self.depth + 1),
            Sign::Closing => seen_at(self.depth.saturating_sub(1)),
            Sign::Comma => {
                if self.depth == 0 {
                    ListState {
                        depth: 0,
                        seen: false,
                        gone: !self.seen,
                    }
                } else {
                    seen_at(self.depth)
                }
            }
            Sign::Token => seen_at(self.depth),
            Sign::Blank => self,
            Sign::Splice => self,
            Sign::Solid => ListState {
                depth: self.depth,
                seen: self.seen,
                gone: false,
            },
        }
    }
}

fn is_opening(text: &[u8]) -> bool
    ensures { result ≡ is_opening text.now }
{
    text == b"(".as_slice() || text == b"[".as_slice() || text == b"{".as_slice()
}

fn is_closing(text: &[u8]) -> bool
    ensures { result ≡ is_closing text.now }
{
    text == b")".as_slice() || text == b"]".as_slice() || text == b"}".as_slice()
}

fn is_comma(text: &[u8]) -> bool
    ensures { result ≡ is_comma text.now }
{
    text == b",".as_slice()
}

/// Returns the state behind a token that is no comma of the list itself.
fn seen_at(depth: usize) -> ListState
    ensures { result ≡ record { depth = depth; seen = true; gone = false } }
{
    ListState {
        depth,
        seen: true,
        gone: false,
    }
}
