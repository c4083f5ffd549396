//! Who advises a search.

// Who advises a search: a hinter on points, and a guide on certificates and splits.
#[derive(Drop)]
pub(crate) struct SearchAdvisers<'a, H, G> {
    pub hinter: &'a mut H,
    pub guide: &'a mut G,
}
