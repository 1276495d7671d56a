// What follows from document 01's definitions: see specs/. No code stands here.
