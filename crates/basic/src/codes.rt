// The bytes that stand for words, as document 02 has them, and the one that no line may have.
// Kept: they are bytes of the file, and a `match` on the byte chooses; an enum would take a second one to make it from
// the byte first.
pub(crate) const FOREIGN: u8 = 0x64;

pub(crate) const END: u8 = 0x80;

pub(crate) const FOR: u8 = 0x81;

pub(crate) const NEXT: u8 = 0x82;

pub(crate) const DATA: u8 = 0x83;

pub(crate) const GOTO: u8 = 0x89;

pub(crate) const RUN: u8 = 0x8A;

pub(crate) const IF: u8 = 0x8B;

pub(crate) const GOSUB: u8 = 0x8D;

pub(crate) const RETURN: u8 = 0x8E;

pub(crate) const REM: u8 = 0x8F;

pub(crate) const STOP: u8 = 0x90;

pub(crate) const ON: u8 = 0x91;

pub(crate) const CLR: u8 = 0x9C;

pub(crate) const TO: u8 = 0xA4;

pub(crate) const THEN: u8 = 0xA7;

pub(crate) const GO: u8 = 0xCB;
