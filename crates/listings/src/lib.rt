// The definition of a listing, of its text and of reading it stands in specs/; there is no code here. Their laws are in listing_laws.
#![tactic(auto)]
