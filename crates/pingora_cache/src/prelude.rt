//! Nothing yet: the items that most callers need are at the root.
