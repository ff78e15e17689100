/// What a view edit does to a view.
#[derive(Clone, Copy)]
pub enum ViewEdit {
    Show,
    Hide,
}
