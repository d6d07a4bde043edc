// The start: a laid-out board becomes a running one.
ghost use Rattle.std.specs.Prelude.{◌≡◌};
ghost use Rattle.board.specs.Phases.{started};

use crate::board::{Layout, MOST_CREW, Running};
use refusals::refusal::Refusal;

impl<K> Layout<K> {
    // Starts the board with a crew of 1 to 16 scanners, or gives it back.
    pub fn start(self, crew: u32) -> Result<Running<K>, (Layout<K>, Refusal)>
        ensures { result ≡ started self crew }
    {
        if !(1..=MOST_CREW).contains(&crew) {
            return Err((self, Refusal::CrewSize));
        }
        let Layout { mut board, kind } = self;
        board.crew = crew;
        Ok(Running { board, kind })
    }
}
