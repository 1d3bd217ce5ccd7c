//! How the data of an axis are written.

use inp_model::AxisInfo;
use std::fmt;
use std::fmt::Write;

/// The data of an axis, after the axis, to the end of the line.
#[derive(Drop)]
pub struct InfoText(pub AxisInfo);

impl fmt::Display for InfoText {
    ghost use Rattle.std.specs.Prelude.{Some};
    ghost use Rattle.inp_record.specs.canon.Words.{further_text};
    ghost use Rattle.inp_record.specs.canon.Device.{info_words};

    ghost output = { λ shown. Some (further_text (info_words shown.0)) };

    #[tactic(auto, unfolding(crate::specs::canon::Device::info_words))]
    fn fmt<W: fmt::Write>(&self, f: &mut fmt::Formatter<W>) -> fmt::Result {
        let AxisInfo {
            value,
            minimum,
            maximum,
            ..
        } = self.0;
        let fuzz = FuzzText(self.0);
        write!(f, " {value} {minimum} {maximum}{fuzz}")
    }
}

/// Fuzz, flat and resolution of an axis, to the end of the line.
#[derive(Drop)]
struct FuzzText(AxisInfo);

impl fmt::Display for FuzzText {
    ghost use Rattle.std.specs.Prelude.{Some};
    ghost use Rattle.inp_record.specs.canon.Words.{further_text};
    ghost use Rattle.inp_record.specs.canon.Device.{fuzz_words};

    ghost output = { λ shown. Some (further_text (fuzz_words shown.0)) };

    #[tactic(auto, unfolding(crate::specs::canon::Device::fuzz_words))]
    fn fmt<W: fmt::Write>(&self, f: &mut fmt::Formatter<W>) -> fmt::Result {
        let AxisInfo {
            fuzz,
            flat,
            resolution,
            ..
        } = self.0;
        write!(f, " {fuzz} {flat} {resolution}\n")
    }
}
