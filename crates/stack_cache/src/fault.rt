/// Why a stack instruction is refused.
#[derive(Clone, Copy, Debug, PartialEq, Eq)]
pub enum StackFault {
    /// The count is above [`crate::STACK_CACHE_WORDS`], the number of words in the cache.
    Over,
    /// The count is at most that, and a pointer would leave [`crate::STACK_LOWEST`] to [`crate::STACK_END`].
    Under,
}
