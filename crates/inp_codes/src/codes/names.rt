//! The names of the codes of each event type but keys and buttons, at their codes.
ghost use Rattle.std.specs.Prelude.{◌≡◌};
ghost use Rattle.inp_codes.specs.ByNumber.{texts, names_by_number};
ghost use Rattle.inp_codes.specs.CodeNames.{syn_codes, rel_codes, abs_codes, msc_codes, sw_codes, led_codes, snd_codes, rep_codes};

use crate::by_number::names;

/// The names of synchronisation events, at their codes.
pub(crate) fn syn_names() -> &'static [&'static str]
    ensures { texts result.now ≡ names_by_number syn_codes }
{
    static NAMES: [&str; 4] = names![
        SYN_REPORT SYN_CONFIG SYN_MT_REPORT SYN_DROPPED
    ];
    &NAMES
}

/// The names of relative axes, at their codes.
pub(crate) fn rel_names() -> &'static [&'static str]
    ensures { texts result.now ≡ names_by_number rel_codes }
{
    static NAMES: [&str; 13] = names![
        // 0x00
        REL_X REL_Y REL_Z REL_RX REL_RY REL_RZ REL_HWHEEL REL_DIAL REL_WHEEL REL_MISC
        // 0x0a
        _
        // 0x0b
        REL_WHEEL_HI_RES REL_HWHEEL_HI_RES
    ];
    &NAMES
}

/// The names of absolute axes, at their codes.
pub(crate) fn abs_names() -> &'static [&'static str]
    ensures { texts result.now ≡ names_by_number abs_codes }
{
    static NAMES: [&str; 62] = names![
        // 0x00
        ABS_X ABS_Y ABS_Z ABS_RX ABS_RY ABS_RZ ABS_THROTTLE ABS_RUDDER ABS_WHEEL ABS_GAS ABS_BRAKE
        // 0x0b
        _ _ _ _ _
        // 0x10
        ABS_HAT0X ABS_HAT0Y ABS_HAT1X ABS_HAT1Y ABS_HAT2X ABS_HAT2Y ABS_HAT3X ABS_HAT3Y ABS_PRESSURE
        ABS_DISTANCE ABS_TILT_X ABS_TILT_Y ABS_TOOL_WIDTH
        // 0x1d
        _ _ _
        // 0x20
        ABS_VOLUME
        // 0x21
        _ _ _ _ _ _ _
        // 0x28
        ABS_MISC
        // 0x29
        _ _ _ _ _ _
        // 0x2f
        ABS_MT_SLOT ABS_MT_TOUCH_MAJOR ABS_MT_TOUCH_MINOR ABS_MT_WIDTH_MAJOR ABS_MT_WIDTH_MINOR
        ABS_MT_ORIENTATION ABS_MT_POSITION_X ABS_MT_POSITION_Y ABS_MT_TOOL_TYPE ABS_MT_BLOB_ID
        ABS_MT_TRACKING_ID ABS_MT_PRESSURE ABS_MT_DISTANCE ABS_MT_TOOL_X ABS_MT_TOOL_Y
    ];
    &NAMES
}

/// The names of miscellaneous events, at their codes.
pub(crate) fn msc_names() -> &'static [&'static str]
    ensures { texts result.now ≡ names_by_number msc_codes }
{
    static NAMES: [&str; 6] = names![
        MSC_SERIAL MSC_PULSELED MSC_GESTURE MSC_RAW MSC_SCAN MSC_TIMESTAMP
    ];
    &NAMES
}

/// The names of switches, at their codes.
pub(crate) fn sw_names() -> &'static [&'static str]
    ensures { texts result.now ≡ names_by_number sw_codes }
{
    static NAMES: [&str; 11] = names![
        SW_LID SW_TABLET_MODE SW_HEADPHONE_INSERT SW_RFKILL_ALL SW_MICROPHONE_INSERT SW_DOCK
        SW_LINEOUT_INSERT SW_JACK_PHYSICAL_INSERT SW_VIDEOOUT_INSERT SW_CAMERA_LENS_COVER
        SW_KEYPAD_SLIDE
    ];
    &NAMES
}

/// The names of LEDs, at their codes.
pub(crate) fn led_names() -> &'static [&'static str]
    ensures { texts result.now ≡ names_by_number led_codes }
{
    static NAMES: [&str; 11] = names![
        LED_NUML LED_CAPSL LED_SCROLLL LED_COMPOSE LED_KANA LED_SLEEP LED_SUSPEND LED_MUTE LED_MISC
        LED_MAIL LED_CHARGING
    ];
    &NAMES
}

/// The names of sounds, at their codes.
pub(crate) fn snd_names() -> &'static [&'static str]
    ensures { texts result.now ≡ names_by_number snd_codes }
{
    static NAMES: [&str; 3] = names![
        SND_CLICK SND_BELL SND_TONE
    ];
    &NAMES
}

/// The names of the autorepeat values, at their codes.
pub(crate) fn rep_names() -> &'static [&'static str]
    ensures { texts result.now ≡ names_by_number rep_codes }
{
    static NAMES: [&str; 2] = names![
        REP_DELAY REP_PERIOD
    ];
    &NAMES
}
