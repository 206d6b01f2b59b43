use crate::FileTree;

fn crosses_threads<T: Send + Sync>() {}

/// A file's tree may be sent to another thread, and several threads may read one at once. The proof of
/// this call shows both.
pub fn file_tree_crosses_threads() {
    crosses_threads::<FileTree>();
}
