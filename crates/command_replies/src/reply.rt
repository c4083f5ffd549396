//! What a command answers.
ghost use Rattle.std.specs.Prelude.{◌≢◌, ◌<◌};

/// What a command answers: the exit status, and the whole text. Statuses from 7 on are those of a run
/// without a whole answer, and 2 is that of words that ask for no command.
#[derive(Drop)]
pub struct Reply {
    pub status: u8,
    pub text: Vec<u8>,
    pub ghost whole: { status < 7 },
    pub ghost asked: { status ≢ 2 },
}
