//! What the definition of the record says of a few frames.
ghost use Rattle.inp_make.specs.Examples.{HasAxes, HasPositions, HasEvents, HasFrames, HasFollows, HasMoments, CountsEvents, CountsLines};

/// What the definition of the record says of the touchpad and of a few frames, worked out by hand, and how many lines
/// each actor has. It does nothing: its contract is the point.
pub fn examples()
    ensures axes { HasAxes }
    ensures positions { HasPositions }
    ensures events { HasEvents }
    ensures frames { HasFrames }
    ensures follows { HasFollows }
    ensures moments { HasMoments }
    ensures event_counts { CountsEvents }
    ensures line_counts { CountsLines }
{}
