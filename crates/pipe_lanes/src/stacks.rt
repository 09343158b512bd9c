// The stacks of threads.
use core::thread::Stack;

/// A stack of that size, or the host's usual one. A thread whose stack is too large is refused.
pub fn stack_of(size: Option<usize>) -> Stack {
    match size {
        None => Stack::new(),
        Some(bytes) => Stack::new().stack_size(bytes),
    }
}
