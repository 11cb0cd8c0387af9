// Requests: calls on a box in bytes, a letter and a body whose length the letter fixes.
ghost use Rattle.std.specs.Prelude.{◌≡◌, ◌≤◌, length, IfSome};
ghost use Rattle.console.specs.Requests.{request_of, body_length};

// A call whose signal is still four bytes.
// Kept beside Call: no bytes ask for a save, so a Call over four bytes would have a case that none gives.
#[derive(Clone, Copy, Debug)]
pub enum Request {
    Sample { terminal: u8, code: [u8; 4] },
    Tune { block: u8, pin: u8, code: [u8; 4] },
    Cycle,
    Restart,
    Read { block: u8, output: u8 },
    Show { terminal: u8 },
}

impl Request {
    // How many bytes stand behind the letter.
    pub fn body_length(self) -> usize
        ensures { result ≡ body_length self }
    {
        match self {
            Request::Sample { .. } => 5,
            Request::Tune { .. } => 6,
            Request::Cycle => 0,
            Request::Restart => 0,
            Request::Read { .. } => 2,
            Request::Show { .. } => 1,
        }
    }
}

// The request that a letter and the bytes behind it begin with; none where the letter is unknown or the bytes are too few.
pub fn request_of(letter: u8, body: &[u8]) -> Option<Request>
    ensures request { result ≡ request_of letter body.now }
    ensures within { IfSome result (λ q. body_length q ≤ length body.now) }
{
    match (letter, body) {
        (b'S', [terminal, a, b, c, d, ..]) => Some(Request::Sample {
            terminal: *terminal,
            code: [*a, *b, *c, *d],
        }),
        (b'T', [block, pin, a, b, c, d, ..]) => Some(Request::Tune {
            block: *block,
            pin: *pin,
            code: [*a, *b, *c, *d],
        }),
        (b'C', _) => Some(Request::Cycle),
        (b'R', _) => Some(Request::Restart),
        (b'G', [block, output, ..]) => Some(Request::Read {
            block: *block,
            output: *output,
        }),
        (b'O', [terminal, ..]) => Some(Request::Show {
            terminal: *terminal,
        }),
        _ => None,
    }
}
