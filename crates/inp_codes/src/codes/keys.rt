//! The names of keys and buttons, at their codes.
ghost use Rattle.std.specs.Prelude.{◌≡◌};
ghost use Rattle.inp_codes.specs.ByNumber.{texts, names_by_number};
ghost use Rattle.inp_codes.specs.CodeNames.{key_codes};

use crate::by_number::names;

/// The names of keys and buttons, at their codes.
pub(crate) fn key_names() -> &'static [&'static str]
    ensures { texts result.now ≡ names_by_number key_codes }
{
    static NAMES: [&str; 336] = names![
        // 0
        _
        // 1
        KEY_ESC KEY_1 KEY_2 KEY_3 KEY_4 KEY_5 KEY_6 KEY_7 KEY_8 KEY_9 KEY_0 KEY_MINUS KEY_EQUAL
        KEY_BACKSPACE KEY_TAB KEY_Q KEY_W KEY_E KEY_R KEY_T KEY_Y KEY_U KEY_I KEY_O KEY_P
        KEY_LEFTBRACE KEY_RIGHTBRACE KEY_ENTER KEY_LEFTCTRL KEY_A KEY_S KEY_D KEY_F KEY_G KEY_H
        KEY_J KEY_K KEY_L KEY_SEMICOLON KEY_APOSTROPHE KEY_GRAVE KEY_LEFTSHIFT KEY_BACKSLASH KEY_Z
        KEY_X KEY_C KEY_V KEY_B KEY_N KEY_M KEY_COMMA KEY_DOT KEY_SLASH KEY_RIGHTSHIFT
        KEY_KPASTERISK KEY_LEFTALT KEY_SPACE KEY_CAPSLOCK KEY_F1 KEY_F2 KEY_F3 KEY_F4 KEY_F5 KEY_F6
        KEY_F7 KEY_F8 KEY_F9 KEY_F10 KEY_NUMLOCK KEY_SCROLLLOCK KEY_KP7 KEY_KP8 KEY_KP9 KEY_KPMINUS
        KEY_KP4 KEY_KP5 KEY_KP6 KEY_KPPLUS KEY_KP1 KEY_KP2 KEY_KP3 KEY_KP0 KEY_KPDOT
        // 84
        _ _
        // 86
        KEY_102ND KEY_F11 KEY_F12
        // 89
        _ _ _ _ _ _ _
        // 96
        KEY_KPENTER KEY_RIGHTCTRL KEY_KPSLASH KEY_SYSRQ KEY_RIGHTALT KEY_LINEFEED KEY_HOME KEY_UP
        KEY_PAGEUP KEY_LEFT KEY_RIGHT KEY_END KEY_DOWN KEY_PAGEDOWN KEY_INSERT KEY_DELETE
        // 112
        _
        // 113
        KEY_MUTE KEY_VOLUMEDOWN KEY_VOLUMEUP KEY_POWER KEY_KPEQUAL
        // 118
        _
        // 119
        KEY_PAUSE
        // 120
        _ _ _ _ _
        // 125
        KEY_LEFTMETA KEY_RIGHTMETA KEY_COMPOSE
        // 128
        _ _ _ _ _ _ _ _ _ _ _ _ _ _ _ _ _ _ _ _ _ _ _ _ _ _ _ _ _ _ _ _ _ _ _ _ _ _ _ _ _ _ _ _ _ _
        _ _ _ _ _ _ _ _ _
        // 183
        KEY_F13 KEY_F14 KEY_F15 KEY_F16 KEY_F17 KEY_F18 KEY_F19 KEY_F20 KEY_F21 KEY_F22 KEY_F23
        KEY_F24
        // 195
        _ _ _ _ _ _ _ _ _ _ _ _ _ _ _ _ _ _ _ _ _ _ _ _ _ _ _ _ _ _ _ _ _ _ _ _ _ _ _ _ _ _ _ _ _ _
        _ _ _ _ _ _ _ _ _ _ _ _ _ _ _
        // 0x100
        BTN_0 BTN_1 BTN_2 BTN_3 BTN_4 BTN_5 BTN_6 BTN_7 BTN_8 BTN_9
        // 0x10a
        _ _ _ _ _ _
        // 0x110
        BTN_LEFT BTN_RIGHT BTN_MIDDLE BTN_SIDE BTN_EXTRA BTN_FORWARD BTN_BACK BTN_TASK
        // 0x118
        _ _ _ _ _ _ _ _
        // 0x120
        BTN_TRIGGER BTN_THUMB BTN_THUMB2 BTN_TOP BTN_TOP2 BTN_PINKIE BTN_BASE BTN_BASE2 BTN_BASE3
        BTN_BASE4 BTN_BASE5 BTN_BASE6
        // 0x12c
        _ _ _ _
        // 0x130
        BTN_SOUTH BTN_EAST BTN_C BTN_NORTH BTN_WEST BTN_Z BTN_TL BTN_TR BTN_TL2 BTN_TR2 BTN_SELECT
        BTN_START BTN_MODE BTN_THUMBL BTN_THUMBR
        // 0x13f
        _
        // 0x140
        BTN_TOOL_PEN BTN_TOOL_RUBBER BTN_TOOL_BRUSH BTN_TOOL_PENCIL BTN_TOOL_AIRBRUSH
        BTN_TOOL_FINGER BTN_TOOL_MOUSE BTN_TOOL_LENS
        // 0x148
        _ _
        // 0x14a
        BTN_TOUCH BTN_STYLUS BTN_STYLUS2 BTN_TOOL_DOUBLETAP BTN_TOOL_TRIPLETAP BTN_TOOL_QUADTAP
    ];
    &NAMES
}
