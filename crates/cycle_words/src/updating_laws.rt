//! What the pauses that begin and end the updating of references make of the words of an image: definitions.
