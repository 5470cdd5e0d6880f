#![tactic(auto)]

// Standard input, line by line.
//
// - `lines::Lines`: what is kept between lines, by value. `next` tells the next line, as a part of the input buffer, or that one is too
//   long, that more is to be read, or that there is none any more. `read` reads on.
//
// The input buffer is lent by the caller, and holds a longest line with its newline. A line that does not fit into it so is passed over up
// to its end. `next` only looks at the buffer; `read` moves what is not told yet to its front and reads behind that, so that the places of
// a line hold up to the next `read`.
//
// Nothing here asks anything of its caller.
pub mod lines;
