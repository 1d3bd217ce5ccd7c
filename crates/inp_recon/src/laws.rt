//! What is true of every history, by the definitions alone.
ghost use Rattle.inp_recon.specs.Faithful.{AreFaithful, AreReadsFaithful};

/// The view of a client is the device's state at each report that the client takes, where it could follow the device.
/// It does nothing: its contract is the point.
///
/// This holds for every description, every choice of what is left of each frame for the clients, every history of
/// accepted steps and every client. Let event i of what the client took be the report of a frame. The client could
/// follow the device up to there where all of these hold (`IsFollowedWith`).
///
/// - Since its last open or discard it asked for all that the device has and a view keeps. That is keys, switches,
///   LEDs, each axis outside 0x2f to 0x3d, and the slots.
/// - It took no `SYN_DROPPED` since, up to event i.
/// - The step that ended the frame came after the last of these queries.
/// - Since the open or discard, up to this frame, no frame was passed while another client held the grab. In that time
///   each key, switch, LED or axis event was left for the clients and admitted by the client's masks.
/// - Up to this frame no axis was described anew since the last frame before the open or discard.
///
/// Then its answers and the events that it took up to event i make a view. It has the keys, switches, LEDs, axes and
/// slots that the device had at the end of that frame (`IsDeviceState`). The device may have moved on since.
///
/// The second clause says the same of item j of what a read takes, which is the shorter form for who makes that read.
/// Where a condition fails the view may be wrong: `faithful_examples` has a history for each.
pub fn faithful()
    ensures histories { AreFaithful }
    ensures reads { AreReadsFaithful }
{}
