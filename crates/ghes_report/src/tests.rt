// Texts of replays, by their scripts and ledgers.
mod script;
