// What the two makes do on examples.
mod one_word;
mod stamp;
