//! The step from a width that is known at run time to code for that width alone, in which the number of places is a
//! constant.

// Makes a call at a width from 1 to 8, by a macro that is given the width as a constant, and then what the call is made
// of.
macro_rules! at_width {
    ($width:expr, $call:ident, $($parts:tt)*) => {
        match $width {
            1 => $call!(1, $($parts)*),
            2 => $call!(2, $($parts)*),
            3 => $call!(3, $($parts)*),
            4 => $call!(4, $($parts)*),
            5 => $call!(5, $($parts)*),
            6 => $call!(6, $($parts)*),
            7 => $call!(7, $($parts)*),
            _ => $call!(8, $($parts)*),
        }
    };
}

// A call of a function, whose type parameter is the width.
macro_rules! call {
    ($width:literal, $function:ident, $($argument:expr),*) => {
        $function::<$width>($($argument),*)
    };
}

pub(crate) use at_width;
pub(crate) use call;
