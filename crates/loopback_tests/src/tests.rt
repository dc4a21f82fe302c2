mod both;
mod loopback;
