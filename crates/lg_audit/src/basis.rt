//! What an audit is made by.

use lg_dict::Dict;
use lg_gram::Place;
use lg_knowread::Knowledge;
use lg_script::Scripts;

/// What the answers of a document are checked by: the dictionary, the knowledge, the scripts, and the journal that the document shows.
#[derive(Clone, Copy)]
pub(crate) struct Basis<'a> {
    pub(crate) base: &'a Dict,
    pub(crate) know: &'a Knowledge,
    pub(crate) scripts: &'a Scripts,
    pub(crate) journal: &'a [Place],
}
