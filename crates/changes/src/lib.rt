#![tactic(auto)]

// What a command of `console` changed: CHANGES of the two records, as docs/CONSOLE.md, "Output" has it. `|`, then each field that is
// another than before with its value now, in the order of the document's tables. The texts are put behind those that wait for standard
// output.
//
// - `record::record`: between two records of the controller.
// - `senders::sender`: between two of the sender.
//
// `list` tells the boards of the controller's list. How a single field is told is for `values`; which fields there are stands here.

mod list;
pub mod record;
pub mod senders;
