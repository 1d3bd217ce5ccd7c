//! The sizes of the structs of `inp_model` that C has, too.
use inp_model::{AxisInfo, Stamped, Taken};
use std::mem::size_of;

const _: () = prove!(size_of::<Taken>() == 24);

const _: () = prove!(size_of::<Stamped>() == 16);

const _: () = prove!(size_of::<AxisInfo>() == 24);
