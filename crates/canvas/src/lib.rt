// A picture with a cursor and a pen, held in memory: what every model of a panel draws on.
// Nothing is allocated once a canvas is made.
#![tactic(auto)]

pub mod canvas;
