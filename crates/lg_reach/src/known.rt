//! What a round has learned.
use crate::site::Sites;
use lg_sharpen::Gaps;

/// The sites of the connectors, and which gaps the nearest links may span.
#[derive(Drop)]
pub(crate) struct Known {
    pub(crate) sites: Sites,
    pub(crate) gaps: Gaps,
}
