//! Transcripts: what is sent to a core, and the outcome, byte for byte.
//!
//! A step of a script has a call, and after an arrow the answer:
//!
//! ```text
//! admit 1 -> let in;
//! 1 says 5a 00000007 "session" 00000007 0000000a 00000008
//!   -> sent, up 00000019 00 5a 00000007 "session" 00000000 0000000a 00000008;
//! server says 5b 00000000 00000005 00000005 00000004
//!   -> 1 is told 5b 00000007 00000005 00000005 00000004;
//! 1 is gone -> done, up 00000006 00 61 00000005;
//! open matters -> 1;
//! ```
//!
//! Numbers before `says` and `is` are clients. Bytes are hexadecimal, or a text in quotes; white
//! space counts nothing. `up` are the frames that go to the server. The call `256 times 1 says ..`
//! is made so often, with `#` for the two digits of the count from 0 on, in the answer too. New
//! channels get the numbers from 0 on, and first the one that was freed last.

ghost use Rattle.std.specs.Prelude.{◌≤◌, vec_len};

mod breaches;

use client_teardown::FAREWELL_ROOM;
use forward_rules::Policy;
use mux_core::{Core, Delivery, Verdict};
use proxy_frames::Queue;
use ssh_fields::Texts;
use std::alloc::Global;
use std::test::Fail;

/// A core that is spoken to.
#[derive(Drop)]
struct Bench {
    alloc: Global,
    core: Core,
}

// Plays a script to a core that permits everything.
fn plays(alloc: Global, script: &str) -> Result<(), Fail> {
    let mut bench = fresh(alloc)?;
    let played = bench.follow(script);
    drop(bench);
    played
}

// Plays each step of a script to a core of its own, after the same beginning.
fn plays_each(alloc: Global, beginning: &str, script: &str) -> Result<(), Fail> {
    for step in script.split(';') {
        plays_behind(alloc, beginning, step)?;
    }
    Ok(())
}

// Plays a step to a core of its own, after a beginning.
fn plays_behind(alloc: Global, beginning: &str, step: &str) -> Result<(), Fail> {
    let steps = format!(in alloc; "{beginning};{step}")?;
    let played = plays(alloc, steps.as_str());
    drop(steps);
    played
}

fn fresh(alloc: Global) -> Result<Bench, Fail> {
    let policy = Policy::read(alloc, &Texts::new(alloc), &Texts::new(alloc), true)?;
    let core = Core::new(alloc, policy)?;
    Ok(Bench { alloc, core })
}

fn put_hex(text: &mut String, bytes: &[u8]) -> Result<(), Fail> {
    for byte in bytes {
        text.push_str(format!(in *text.allocator(); "{byte:02x}")?.as_str())?;
    }
    Ok(())
}

// Adds the words without the spaces between, and with the count for each `#`.
fn put_words(text: &mut String, words: &str, count: &str) -> Result<(), Fail> {
    for c in words.chars() {
        match c {
            '#' => text.push_str(count)?,
            ' ' | '\n' => {}
            _ => text.push(c)?,
        }
    }
    Ok(())
}

// A call or an answer without spaces, where bytes are hexadecimal.
fn plain(alloc: Global, text: &str, count: &str) -> Result<String, Fail> {
    let mut plain = String::new(alloc);
    for (i, part) in text.split('"').enumerate() {
        if i % 2 == 1 {
            put_hex(&mut plain, part.as_bytes())?;
        } else {
            put_words(&mut plain, part, count)?;
        }
    }
    Ok(plain)
}

fn bytes(alloc: Global, digits: &str) -> Result<Vec<u8>, Fail> {
    let mut bytes = Vec::new(alloc);
    let mut high = None;
    for c in digits.chars() {
        let digit = c.to_digit(16).ok_or("no digit")?;
        high = match high {
            None => Some(digit),
            Some(high) => {
                bytes.push(u8::try_from(high.wrapping_mul(16).wrapping_add(digit))?)?;
                None
            }
        };
    }
    match high {
        None => Ok(bytes),
        Some(_) => Err(Fail::new("half a byte")),
    }
}

// ---- calls

impl Bench {
    fn follow(&mut self, script: &str) -> Result<(), Fail> {
        for step in script.split(';') {
            match step.split_once("->") {
                Some((call, answer)) => self.check(call, answer)?,
                None if step.trim().is_empty() => {}
                None => return Err(Fail::new("a step without an answer")),
            }
        }
        Ok(())
    }

    fn check(&mut self, call: &str, answer: &str) -> Result<(), Fail> {
        let Some((times, call)) = call.split_once(" times ") else {
            return self.check_once(call, answer, "");
        };
        for count in 0..times.trim().parse::<u32>()? {
            let count = format!(in self.alloc; "{:02x}", count % 256)?;
            self.check_once(call, answer, count.as_str())?;
        }
        Ok(())
    }

    fn check_once(&mut self, call: &str, answer: &str, count: &str) -> Result<(), Fail> {
        let answer = plain(self.alloc, answer, count)?;
        let got = self.play(plain(self.alloc, call, count)?.as_str())?;
        let got = plain(self.alloc, got.as_str(), "")?;
        if got.as_str() == answer.as_str() {
            return Ok(());
        }
        let got = got.as_str();
        Err(Fail::new(format_args!("{call}: {got}")))
    }

    // Makes a call, and shows its outcome.
    fn play(&mut self, call: &str) -> Result<String, Fail> {
        let mut up = Queue::new(self.alloc);
        let mut shown = self.call(call, &mut up)?;
        if !up.is_empty() {
            shown.push_str(", up ")?;
            put_hex(&mut shown, up.front())?;
        }
        Ok(shown)
    }

    fn call(&mut self, call: &str, up: &mut Queue) -> Result<String, Fail> {
        if let Some((speaker, payload)) = call.split_once("says") {
            return self.speak(speaker, bytes(self.alloc, payload)?, up);
        }
        if let Some(client) = call.strip_prefix("admit") {
            return self.admit(client.parse::<u64>()?);
        }
        if let Some((client, _)) = call.split_once("isgone") {
            return self.lose(client.parse::<u64>()?, up);
        }
        if call == "openmatters" {
            let count = self.core.open_matters();
            return Ok(format!(in self.alloc; "{count}")?);
        }
        Err(Fail::new("no such call"))
    }

    fn speak(&mut self, speaker: &str, payload: Vec<u8>, up: &mut Queue) -> Result<String, Fail> {
        if payload.len() > 1024 {
            return Err(Fail::new("a long payload"));
        }
        if speaker == "server" {
            return self.receive(payload, up);
        }
        self.send(speaker.parse::<u64>()?, payload, up)
    }

    fn admit(&mut self, client: u64) -> Result<String, Fail> {
        let shown = if self.core.admit(client)? {
            "let in"
        } else {
            "refused"
        };
        Ok(String::from_str(self.alloc, shown)?)
    }

    fn lose(&mut self, client: u64, up: &mut Queue) -> Result<String, Fail> {
        up.reserve(FAREWELL_ROOM)?;
        self.core.gone(client, up);
        Ok(String::from_str(self.alloc, "done")?)
    }

    fn send(&mut self, client: u64, payload: Vec<u8>, up: &mut Queue) -> Result<String, Fail>
        requires { vec_len payload ≤ 1024 }
    {
        let mut payload = payload;
        let verdict = self.core.said(client, &mut payload, up)?;
        shown_verdict(self.alloc, &verdict)
    }

    fn receive(&mut self, payload: Vec<u8>, up: &mut Queue) -> Result<String, Fail>
        requires { vec_len payload ≤ 1024 }
    {
        let mut payload = payload;
        let heard = self.core.heard(&mut payload, up)?;
        shown_heard(self.alloc, heard, &payload)
    }
}

fn shown_verdict(alloc: Global, verdict: &Verdict) -> Result<String, Fail> {
    let mut shown = String::new(alloc);
    match verdict {
        Verdict::Sent => shown.push_str("sent")?,
        Verdict::Held => shown.push_str("held")?,
        Verdict::Silent => shown.push_str("nothing")?,
        Verdict::Answer(payload) => {
            shown.push_str("answered ")?;
            put_hex(&mut shown, payload.as_bytes())?;
        }
        Verdict::Drop(why) => write!(shown, "dropped {why:?}")?,
    }
    Ok(shown)
}

fn shown_heard(alloc: Global, heard: Delivery, payload: &[u8]) -> Result<String, Fail> {
    let mut shown = String::new(alloc);
    match heard {
        Delivery::Master => shown.push_str("master")?,
        Delivery::Lost { client } => write!(shown, "{client} is lost")?,
        Delivery::Disconnect => shown.push_str("end")?,
        Delivery::Broke(why) => write!(shown, "broken {why:?}")?,
        Delivery::Client { client, refusals } => {
            write!(shown, "{client} is told ")?;
            put_hex(&mut shown, payload)?;
            if refusals > 0 {
                write!(shown, ", then {refusals} refused")?;
            }
        }
    }
    Ok(shown)
}
