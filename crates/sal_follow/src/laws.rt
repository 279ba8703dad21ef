//! Laws of the definitions. A call does nothing: its clauses are the laws.
ghost use Rattle.sal_follow.specs.Laws.{CellsReadAsWritten, FramesAreRead, HoldsTheLast, PathsReadAsWritten, PiecesDoNotMatter, PlacesCountBytes, SnapshotsAreFollowed, StreamsAreFollowed, StreamsBeginAnywhere, StreamsGoOn, StreamsGoOnAfter, TakesWholeFrames};

/// A frame is read from its first byte, whatever follows it.
pub fn frames_are_read()
    ensures { FramesAreRead }
{}

/// The state after the pieces of a stream is the state after their bytes.
pub fn pieces_do_not_matter()
    ensures { PiecesDoNotMatter }
{}

/// The state after the bytes of a frame and more bytes is the state after these of a follower that has taken the frame.
pub fn frames_are_taken_whole()
    ensures { TakesWholeFrames }
{}

/// Paths that fit are read as they were written, and so are the cells that such a path may have.
pub fn rows_read_as_written()
    ensures paths { PathsReadAsWritten }
    ensures cells { CellsReadAsWritten }
{}

/// A follower of a stream, or of a prefix of one, has no fault, and has the leader's trees at its commit; after the whole
/// stream these are the trees of the last commit.
pub fn streams_are_followed()
    ensures followed { StreamsAreFollowed }
    ensures last { HoldsTheLast }
{}

/// A stream may begin with the snapshot of any commit, and then has the frames of the commits after it. A follower of it has the leader's trees.
pub fn streams_begin_anywhere()
    ensures stream { StreamsBeginAnywhere }
    ensures followed { SnapshotsAreFollowed }
{}

/// A stream of the frames before a commit continues with the frames from that commit on (`export_since`).
pub fn streams_go_on()
    ensures { StreamsGoOn }
{}

/// A stream continues after its last frame with the frames of later trees, with the next numbers (`export_on`).
pub fn streams_go_on_after()
    ensures { StreamsGoOnAfter }
{}

/// The offset of an incomplete frame in the stream, plus the number of its bytes, is at most the number of bytes received; without
/// a fault they are equal.
pub fn places_count_bytes()
    ensures { PlacesCountBytes }
{}
