//! The older form of a text, which has no breaks and no fence at its front.
pub use snap_text_literals::legacy::legacy_text;
