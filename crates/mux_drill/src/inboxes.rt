ghost use Rattle.std.specs.Prelude.{◌≡◌, ◌≤◌, ◌^◌, ◌<◌, [], ◌++◌, drop, take, ◌-◌, length, replicate, IfOk, OnOk, OnErr};
ghost use Rattle.conf_rules.specs.Texts.{is_empty_list};
ghost use Rattle.mux_drill.specs.Inboxes.{unread_at, with_more_bytes, without_first_message, without_last, stands_first, is_all_read};

use ssh_fields::OutOfMemory;
use std::alloc::Global;
use std::marker::Model;

// Bytes of which the first were read.
#[derive(Drop)]
struct Inbox {
    bytes: Vec<u8>,
    read: usize,
}

impl Model for Inbox {
    ghost use Rattle.std.specs.Prelude.{List, ℕ, drop, vec_len, ◌≤◌};

    ghost Value = { List ℕ };

    ghost view = { λ i. drop i.read i.bytes.items };

    ghost invariant = { λ i. i.read ≤ vec_len i.bytes };
}

impl Inbox {
    fn new(alloc: Global) -> Inbox
        ensures { result ≡ [] }
    {
        Inbox {
            bytes: Vec::new(alloc),
            read: 0,
        }
    }

    // The bytes that aren't read.
    fn unread(&self) -> &[u8]
        ensures { result.now ≡ self.now }
    {
        &self.bytes[self.read..]
    }

    // Adds bytes at the end. An `Err` changes nothing.
    fn add(&mut self, bytes: &[u8]) -> Result<(), OutOfMemory>
        ensures ok { OnOk result (self.new ≡ self.old ++ bytes.now) }
        ensures err { OnErr result (self.new ≡ self.old) }
    {
        if self.read == self.bytes.len() {
            self.bytes.clear();
            self.read = 0;
        }
        self.bytes.extend_from_slice(bytes)?;
        Ok(())
    }

    // Reads so many bytes, or all.
    fn read(&mut self, count: usize)
        ensures { self.new ≡ drop count self.old }
    {
        self.read += count.min(self.bytes.len() - self.read);
    }

    // Removes so many bytes at the end, or all that aren't read. It allocates no memory.
    fn take_back(&mut self, count: usize)
        ensures { self.new ≡ take (length self.old - count) self.old }
    {
        let unread = self.bytes.len() - self.read;
        self.bytes
            .truncate(self.read + unread.saturating_sub(count));
    }
}

/// The bytes that were written to each stream and aren't read yet.
#[derive(Drop)]
pub struct Inboxes {
    boxes: Vec<Inbox>,
}

impl Model for Inboxes {
    ghost use Rattle.std.specs.Prelude.{List, ℕ};

    ghost Value = { List (List ℕ) };

    ghost view = { λ i. i.boxes.items };
}

impl Inboxes {
    /// Nothing was written to any stream, and there is none.
    pub fn new(alloc: Global) -> Inboxes
        ensures { result ≡ [] }
    {
        Inboxes {
            boxes: Vec::new(alloc),
        }
    }

    /// Nothing was written to so many streams.
    pub fn empty(alloc: Global, count: u64) -> Result<Inboxes, OutOfMemory>
        ensures { IfOk result (λ unread. unread ≡ replicate count []) }
    {
        let mut boxes = Vec::new(alloc);
        for _i in 0..count {
            boxes.push(Inbox::new(alloc))?;
        }
        Ok(Inboxes { boxes })
    }

    /// The bytes of a stream that aren't read.
    pub fn at(&self, stream: u64) -> &[u8]
        ensures { result.now ≡ unread_at stream self.now }
    {
        match self.boxes.get(stream as usize) {
            None => &[],
            Some(inbox) => inbox.unread(),
        }
    }

    /// Whether a stream has these bytes first.
    pub fn stands_first(&self, stream: u64, bytes: &[u8]) -> bool
        ensures { result ≡ stands_first stream bytes.now self.now }
    {
        self.at(stream).starts_with(bytes)
    }

    /// Writes bytes to a stream. An `Err` changes nothing.
    pub fn add(&mut self, stream: u64, bytes: &[u8]) -> Result<(), OutOfMemory>
        ensures ok { OnOk result (self.new ≡ with_more_bytes stream bytes.now self.old) }
        ensures err { OnErr result (self.new ≡ self.old) }
    {
        let i = stream as usize;
        if i >= self.boxes.len() {
            return Ok(());
        }
        self.boxes[i].add(bytes)
    }

    /// Reads so many bytes of a stream.
    pub fn read(&mut self, stream: u64, count: usize)
        ensures { self.new ≡ without_first_message stream count self.old }
    {
        let i = stream as usize;
        if i < self.boxes.len() {
            self.boxes[i].read(count);
        }
    }

    /// Removes so many bytes of a stream that were written last. It allocates no memory, so an
    /// `add` can come before what may fail and be taken back.
    pub fn take_back(&mut self, stream: u64, count: usize)
        ensures { self.new ≡ without_last stream count self.old }
    {
        let i = stream as usize;
        if i < self.boxes.len() {
            self.boxes[i].take_back(count);
        }
    }

    /// Whether all was read.
    pub fn all_read(&self) -> bool
        ensures { result ≡ is_all_read self.now }
    {
        self.boxes.iter().all(|inbox| inbox.unread().is_empty())
    }
}
