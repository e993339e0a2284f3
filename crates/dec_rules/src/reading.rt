// How far a sequence of bytes has been read.

// The parameters of a control sequence: eight values, 0 where nothing is written, and the index of the one being
// read, which is 8 once the eighth is over. An array and an index, since nothing is allocated while a sequence is read.
#[derive(Clone, Copy, Debug)]
pub struct Parameters {
    pub values: [u16; 8],
    pub at: usize,
}

impl Parameters {
    // No parameter is read yet.
    pub const NONE: Parameters = Parameters {
        values: [0; 8],
        at: 0,
    };
}

#[derive(Clone, Copy, Debug)]
pub enum Reading {
    // no sequence is half read
    Ground,
    // ESC was read
    Escape,
    // ESC and [ were read, and these parameters
    Sequence(Parameters),
    // a byte was read that voids the sequence up to its end
    Voided,
}
