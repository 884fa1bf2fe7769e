// The numbers of the opening words: their places in the one table of 28 (specs/Layout checks them against it).
// Kept: they are entries of the lent tables, which C reads.
pub const MODULE: u16 = 0;

pub const LINE: u16 = 1;

pub const IF: u16 = 2;

pub const IFELSE: u16 = 3;

pub const RCOMP: u16 = 4;

pub const TO: u16 = 5;

pub const STMTS: u16 = 6;

pub const GOTO: u16 = 7;

pub const GOSUB: u16 = 8;

pub const RETURN: u16 = 9;

pub const RUN: u16 = 10;

pub const ONGOTO: u16 = 11;

pub const ONGOSUB: u16 = 12;

pub const FOR: u16 = 13;

pub const NEXT: u16 = 14;

pub const REPEAT: u16 = 15;

pub const LOOP: u16 = 16;

pub const UNTIL: u16 = 17;

pub const ENDLOOP: u16 = 18;

pub const EXIT: u16 = 19;

pub const EXITIF: u16 = 20;

pub const DOIF: u16 = 21;

pub const ELSE: u16 = 22;

pub const DONE: u16 = 23;

pub const CLR: u16 = 24;

pub const STOP: u16 = 25;

pub const ANY: u16 = 26;

pub const PLAIN: u16 = 27;
