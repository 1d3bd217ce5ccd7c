//! How numbers, types, codes, the bits of a mask, clocks and roles are written, and how lines, words, numbers, types and
//! codes are read.
//!
//! | Call | Gives |
//! |---|---|
//! | `push_code(&mut page, 1, 30)` | `KEY_A` at the end of the page |
//! | `text_words(b"do  s open", text, &mut list)` | `true`, and the list has `do`, `s` and `open` |
//! | `number(b"0x10", 99)` | `Some(16)` |
//! | `signed_number(b"-0x10")` | `Some(-16)` |
//! | `kind_word(b"EV_KEY")`, `kind_word(b"1")` | `Some(1)` |
//! | `code_word(1, b"KEY_A")`, `code_word(1, b"30")` | `Some(30)` |
//!
//! This crate is for whoever writes a text, `inp_record` and `inp_report`, and for whoever reads the record of a device,
//! `inp_record`. It depends on `inp_codes` for names, on `inp_model` for clocks and for want of memory, and on `inp_actors`
//! for roles.
//!
//! What is written is exactly the text that `specs/Texts.antt` defines of its value, or the formatter failed. It takes no
//! memory but the text's. A [`Page`] is a text that is written piece by piece: words are stored in place, and a
//! [`Phrase`], which is written again and again, is copied by a fixed width. Numbers, types and codes, which make up most
//! of a report, are appended to a page with no formatter between. `proofs/Written.antt` has lemmas on loops that write,
//! `proofs/Pages.antt` on what stands on a page.
//!
//! What is read is as the definition of its form in `specs/` says; [`examples`] shows what these say: of numbers at their
//! bounds in both bases, of codes by name and by number, and of how lines and words are cut. [`text_words`] takes memory
//! where the list that it is lent has no room.
#![tactic(auto)]

mod bits_text;
mod clock_text;
mod code_text;
mod code_words;
mod digits;
pub mod examples;
mod kind_text;
mod lanes;
mod lines;
mod number_words;
mod numbers;
mod page;
mod phrase;
mod role_text;
mod table;
mod words;

pub use bits_text::BitsText;
pub use clock_text::ClockText;
pub use code_text::{CodeText, push_code};
pub use code_words::{code_word, kind_word};
pub use kind_text::{KindText, push_kind};
pub use number_words::{number, signed_number};
pub use numbers::{push_number, push_signed};
pub use page::Page;
pub use phrase::Phrase;
pub use role_text::RoleText;
pub use table::named;
pub use words::{first_word, is_comment, line_end, strip_carriage_return, text_words};
