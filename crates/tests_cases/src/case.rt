//! A case and its files.
use std::alloc::Global;
use std::{fs, io};

/// A case of a folder.
#[derive(Clone, Copy)]
pub struct Case<'a> {
    pub rt: &'a HostRuntime,
    pub folder: &'a str,
    pub name: &'a str,
}

// Whether the file is there.
fn is_there(rt: &HostRuntime, path: String) -> io::Result<bool> {
    fs::exists(rt, path.as_str())
}

// The text of the file.
fn text_at(rt: &HostRuntime, path: String) -> io::Result<String> {
    fs::read_to_string(rt, path.as_str())
}

impl Case<'_> {
    pub fn alloc(&self) -> Global {
        self.rt.alloc()
    }

    // The path of the case's file of this kind.
    fn path(&self, kind: &str) -> io::Result<String> {
        let folder = self.folder;
        let name = self.name;
        Ok(format!(in self.rt.alloc(); "{folder}/{name}.{kind}")?)
    }

    // The path of a file that the cases of the folder share.
    fn shared_path(&self, file: &str) -> io::Result<String> {
        let folder = self.folder;
        Ok(format!(in self.rt.alloc(); "{folder}/{file}")?)
    }

    /// Whether the case has a file of this kind.
    pub fn has(&self, kind: &str) -> io::Result<bool> {
        is_there(self.rt, self.path(kind)?)
    }

    /// Whether the folder has this file.
    pub fn shares(&self, file: &str) -> io::Result<bool> {
        is_there(self.rt, self.shared_path(file)?)
    }

    /// The text of the case's file of this kind.
    pub fn text(&self, kind: &str) -> io::Result<String> {
        text_at(self.rt, self.path(kind)?)
    }

    /// The text of a file that the cases of the folder share.
    pub fn shared_text(&self, file: &str) -> io::Result<String> {
        text_at(self.rt, self.shared_path(file)?)
    }

    /// The text of the case's file of this kind, or another one if there is none.
    pub fn text_or(&self, kind: &str, other: &str) -> io::Result<String> {
        if self.has(kind)? {
            self.text(kind)
        } else {
            Ok(String::from_str(self.rt.alloc(), other)?)
        }
    }
}
