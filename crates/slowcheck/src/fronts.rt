//! What the slow program finds of the front parts of a list.
use crate::slow::{forbidden, negative};
use action::deed::Deed;
use sheet::diagram::Diagram;
use std::alloc::{AllocError, Global};

/// Of the first so many deeds.
#[derive(Clone, Copy, Debug)]
pub struct Front {
    // Stays: two findings, of which neither says whether the other is there.
    pub forbidden: bool,
    pub negative: bool,
}

/// Of the first 0, 1, .. deeds of a list, the whole list last.
pub fn fronts(heap: Global, d: &Diagram, deeds: &[Deed]) -> Result<Vec<Front>, AllocError> {
    let mut found = Vec::new(heap);
    // Stays: no method of a slice gives its front parts, so their lengths are counted: `&deeds[..k]`.
    for k in 0..=deeds.len() {
        let front = &deeds[..k];
        found.push(Front {
            forbidden: forbidden(heap, d, front)?,
            negative: negative(d, front),
        })?;
    }
    Ok(found)
}

/// Whether the first k deeds are forbidden.
pub fn forbidden_at(found: &[Front], k: usize) -> bool {
    found.get(k).is_some_and(|front| front.forbidden)
}
