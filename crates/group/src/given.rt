// A group as a caller gives it to Write.
use crate::Header;
use crate::edition::Edition;

// The values of a group file as a caller gives them. Claims and bits are two lists, as C gives them: that they are as many is asked later.
#[derive(Clone, Copy)]
pub struct GroupValues<'a> {
    pub edition: Edition,
    pub header: Header,
    pub counts: &'a [u8],
    pub claims: &'a [u32],
    pub joined: &'a [u8],
}
