//! A sheet.

use crate::page::Page;
use model::refusal::Refusal;

pub mod calls;

/// A sheet with a house rule of any kind: its page, or what the look refused, which every call then gives. It is a linear value: close
/// alone ends it.
pub struct Sheet<R> {
    house: R,
    page: Result<Page, Refusal>,
}
