//! What holds of all records, and what some records are.
ghost use Rattle.inp_model.specs.declared.stamped.TheConstants.{MOMENT_MAX};
ghost use Rattle.inp_stream.specs.declared.event_record.TheConstants.{TIME_LEN};
ghost use Rattle.inp_stream.specs.declared.event_record16.TheConstants.{TIME16_LEN, MOMENT16_MAX};
ghost use Rattle.inp_stream.specs.Stream.{IsReadAgain, HasOneSpelling};
ghost use Rattle.inp_stream.specs.Examples.{SpellsAKeyPress, MeansAKeyPress, LacksAByte, HasAMillionMicroseconds, HasTheLastMicrosecond, IsTheLastMoment, IsPastTheLastMoment, WouldWrap, LooksAtNoMore, HasFourBytes};

/// The law of the two spellings, for records of 24 and of 16 bytes. The record of an event and its moment means both
/// again, and bytes that mean them begin with their record. It does nothing: its contract is the point.
pub fn round_trip()
    ensures read_again { IsReadAgain TIME_LEN MOMENT_MAX }
    ensures read_again16 { IsReadAgain TIME16_LEN MOMENT16_MAX }
    ensures one_spelling { HasOneSpelling TIME_LEN }
    ensures one_spelling16 { HasOneSpelling TIME16_LEN }
{}

/// What records are and what bytes mean, worked out by hand. It does nothing: its contract is the point.
pub fn examples()
    ensures spelling { SpellsAKeyPress }
    ensures meaning { MeansAKeyPress }
    ensures short { LacksAByte }
    ensures million { HasAMillionMicroseconds }
    ensures microsecond { HasTheLastMicrosecond }
    ensures last { IsTheLastMoment }
    ensures past { IsPastTheLastMoment }
    ensures wraps { WouldWrap }
    ensures more { LooksAtNoMore }
    ensures narrow { HasFourBytes }
{}
