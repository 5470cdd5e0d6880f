// The link's script, as a word brings it.
use crate::arguments::argument;
use link::script::Script;

// The script of the word at this place, if there is one, which is put into the room.
pub(crate) fn script(rt: &HostRuntime, place: Option<usize>, word: &mut [u8]) -> Script {
    match place {
        Some(i) => Script {
            at: b"link=".len(),
            end: argument(rt, i, word),
        },
        None => Script { at: 0, end: 0 },
    }
}
