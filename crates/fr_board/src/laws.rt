//! What the pieces that were drawn say of the jobs. The function computes nothing, and its contract is
//! a law.
ghost use Rattle.fr_board.specs.Laws.{JobsAreDrawnOnce};

/// What draws have drawn has each job at most once. Where all draws are joined again and no piece is
/// left, it has each job of the board, and once.
pub fn jobs_are_drawn_once()
    ensures { JobsAreDrawnOnce }
{}
